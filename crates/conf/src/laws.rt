//! Laws of the configuration: each is the clause of a function that does nothing but call other laws.

ghost use Rattle.std.specs.Prelude.{◌≡◌, ℕ, List};
ghost use Rattle.conf.specs.Reading.{IsConf, IsRefusedAt};
ghost use Rattle.conf.specs.Routes.{IsRoute, route_of};
ghost use Rattle.conf.specs.declared.routes.Route.{Route};
ghost use Rattle.conf.specs.declared.sites.Conf.{Conf};
ghost use Rattle.conf.specs.declared.faults.ConfFault.{ConfFault};

use conf_text::a_text_has_one_list_of_items;

/// A law: a text says one configuration.
pub fn a_text_has_one_configuration()
    ensures { (text : List ℕ) (conf other : Conf) → IsConf text conf → IsConf text other → conf ≡ other }
{
    a_text_has_one_list_of_items();
}

/// A law: a text that is a configuration isn't refused.
pub fn no_configuration_is_refused()
    ensures { (text : List ℕ) (conf : Conf) (fault : ConfFault) → IsConf text conf → ¬ (IsRefusedAt text fault) }
{
    a_text_has_one_list_of_items();
}

/// A law: a refused text has one first fault.
pub fn a_refused_text_has_one_fault()
    ensures { (text : List ℕ) (fault other : ConfFault) → IsRefusedAt text fault → IsRefusedAt text other → fault ≡ other }
{
    a_text_has_one_list_of_items();
}

/// A law: a request has one route.
pub fn a_request_has_one_route()
    ensures { (conf : Conf) (host path : List ℕ) (route : Route) → IsRoute conf host path route → route ≡ route_of conf host path }
{}
