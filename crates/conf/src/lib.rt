//! The configuration: what the text of a site says, and which location a request is for.
#![tactic(auto)]

mod blocks;
mod faults;
mod inheritance;
mod laws;
mod listings;
mod meaning;
mod reading;
mod routes;
mod sites;
mod steps;
mod zones;

pub use faults::ConfFault;
pub use laws::{
    a_refused_text_has_one_fault, a_request_has_one_route, a_text_has_one_configuration,
    no_configuration_is_refused,
};
pub use listings::Listing;
pub use reading::site_text_of;
pub use routes::{Route, named_location, route_for};
pub use sites::{Block, Conf, LocationConf, ServerConf, Settings, ZoneConf};
