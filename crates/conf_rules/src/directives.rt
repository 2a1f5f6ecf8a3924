//! Directives: their names, where they may stand, how often, and in which form.
ghost use Rattle.std.specs.Prelude.{◌≡◌};
ghost use Rattle.conf_rules.specs.Directives as spec;

/// A directive of nginx or of the lua-nginx-module.
#[derive(Clone, Copy, Debug, PartialEq, Eq)]
pub enum Directive {
    WorkerProcesses,
    Daemon,
    Pid,
    User,
    AccessLog,
    Sendfile,
    TcpNopush,
    TcpNodelay,
    ErrorLog,
    Events,
    WorkerConnections,
    Http,
    Server,
    Listen,
    ServerName,
    LuaSharedDict,
    LuaPackagePath,
    InitByLua,
    RewriteByLua,
    AccessByLua,
    ContentByLua,
    HeaderFilterByLua,
    BodyFilterByLua,
    LogByLua,
    Location,
    Internal,
    DefaultType,
    ClientMaxBodySize,
    KeepaliveTimeout,
    ClientBodyTimeout,
    SendTimeout,
    ClientHeaderTimeout,
    SocketConnectTimeout,
    SocketSendTimeout,
    SocketReadTimeout,
    SocketKeepaliveTimeout,
    SocketPoolSize,
}

/// A block of a configuration, or its main part.
#[derive(Clone, Copy, Debug, PartialEq, Eq)]
pub enum Place {
    Main,
    Events,
    Http,
    Server,
    Location,
}

/// The blocks in which a directive may stand.
#[derive(Clone, Copy, Debug, PartialEq, Eq)]
pub enum Scope {
    Main,
    MainOrHttp,
    Events,
    Http,
    HttpOrServer,
    Server,
    Location,
    /// In `http`, `server` and `location`: what is said in a block holds in those within it.
    Inherited,
}

/// What ends a directive.
#[derive(Clone, Copy, Debug, PartialEq, Eq)]
pub enum Form {
    /// A `;`.
    Simple,
    /// A block of directives.
    Block,
    /// A block of Lua.
    Lua,
}

/// All directives.
const DIRECTIVES: [Directive; 37] = [
    Directive::WorkerProcesses,
    Directive::Daemon,
    Directive::Pid,
    Directive::User,
    Directive::AccessLog,
    Directive::Sendfile,
    Directive::TcpNopush,
    Directive::TcpNodelay,
    Directive::ErrorLog,
    Directive::Events,
    Directive::WorkerConnections,
    Directive::Http,
    Directive::Server,
    Directive::Listen,
    Directive::ServerName,
    Directive::LuaSharedDict,
    Directive::LuaPackagePath,
    Directive::InitByLua,
    Directive::RewriteByLua,
    Directive::AccessByLua,
    Directive::ContentByLua,
    Directive::HeaderFilterByLua,
    Directive::BodyFilterByLua,
    Directive::LogByLua,
    Directive::Location,
    Directive::Internal,
    Directive::DefaultType,
    Directive::ClientMaxBodySize,
    Directive::KeepaliveTimeout,
    Directive::ClientBodyTimeout,
    Directive::SendTimeout,
    Directive::ClientHeaderTimeout,
    Directive::SocketConnectTimeout,
    Directive::SocketSendTimeout,
    Directive::SocketReadTimeout,
    Directive::SocketKeepaliveTimeout,
    Directive::SocketPoolSize,
];

/// How a directive is written.
#[tactic(auto, unfolding(crate::specs::Directives::spelling))]
fn spelling(directive: Directive) -> &'static [u8]
    ensures { result.now ≡ spec.spelling directive }
{
    match directive {
        Directive::WorkerProcesses => b"worker_processes",
        Directive::Daemon => b"daemon",
        Directive::Pid => b"pid",
        Directive::User => b"user",
        Directive::AccessLog => b"access_log",
        Directive::Sendfile => b"sendfile",
        Directive::TcpNopush => b"tcp_nopush",
        Directive::TcpNodelay => b"tcp_nodelay",
        Directive::ErrorLog => b"error_log",
        Directive::Events => b"events",
        Directive::WorkerConnections => b"worker_connections",
        Directive::Http => b"http",
        Directive::Server => b"server",
        Directive::Listen => b"listen",
        Directive::ServerName => b"server_name",
        Directive::LuaSharedDict => b"lua_shared_dict",
        Directive::LuaPackagePath => b"lua_package_path",
        Directive::InitByLua => b"init_by_lua_block",
        Directive::RewriteByLua => b"rewrite_by_lua_block",
        Directive::AccessByLua => b"access_by_lua_block",
        Directive::ContentByLua => b"content_by_lua_block",
        Directive::HeaderFilterByLua => b"header_filter_by_lua_block",
        Directive::BodyFilterByLua => b"body_filter_by_lua_block",
        Directive::LogByLua => b"log_by_lua_block",
        Directive::Location => b"location",
        Directive::Internal => b"internal",
        Directive::DefaultType => b"default_type",
        Directive::ClientMaxBodySize => b"client_max_body_size",
        Directive::KeepaliveTimeout => b"keepalive_timeout",
        Directive::ClientBodyTimeout => b"client_body_timeout",
        Directive::SendTimeout => b"send_timeout",
        Directive::ClientHeaderTimeout => b"client_header_timeout",
        Directive::SocketConnectTimeout => b"lua_socket_connect_timeout",
        Directive::SocketSendTimeout => b"lua_socket_send_timeout",
        Directive::SocketReadTimeout => b"lua_socket_read_timeout",
        Directive::SocketKeepaliveTimeout => b"lua_socket_keepalive_timeout",
        Directive::SocketPoolSize => b"lua_socket_pool_size",
    }
}

/// The directive of this name.
#[tactic(auto, unfolding(crate::specs::Directives::directive_of, crate::specs::Directives::directives))]
pub fn directive_of(name: &[u8]) -> Option<Directive>
    ensures { result ≡ spec.directive_of name.now }
{
    DIRECTIVES
        .iter()
        .copied()
        .find(|directive| spelling(*directive) == name)
}

/// Where a directive may stand.
#[tactic(auto, unfolding(crate::specs::Directives::scope_of))]
fn scope_of(directive: Directive) -> Scope
    ensures { result ≡ spec.scope_of directive }
{
    match directive {
        Directive::WorkerProcesses
        | Directive::Daemon
        | Directive::Pid
        | Directive::User
        | Directive::Events
        | Directive::Http => Scope::Main,
        Directive::ErrorLog => Scope::MainOrHttp,
        Directive::WorkerConnections => Scope::Events,
        Directive::Server
        | Directive::LuaSharedDict
        | Directive::LuaPackagePath
        | Directive::InitByLua => Scope::Http,
        Directive::Listen | Directive::ServerName | Directive::Location => Scope::Server,
        Directive::ContentByLua | Directive::Internal => Scope::Location,
        Directive::ClientHeaderTimeout => Scope::HttpOrServer,
        _ => Scope::Inherited,
    }
}

/// Whether a place is one of a scope.
fn holds(scope: Scope, place: Place) -> bool
    ensures { result ≡ spec.holds scope place }
{
    match place {
        Place::Main => matches!(scope, Scope::Main | Scope::MainOrHttp),
        Place::Events => matches!(scope, Scope::Events),
        Place::Http => matches!(
            scope,
            Scope::Http | Scope::MainOrHttp | Scope::HttpOrServer | Scope::Inherited
        ),
        Place::Server => matches!(
            scope,
            Scope::Server | Scope::HttpOrServer | Scope::Inherited
        ),
        Place::Location => matches!(scope, Scope::Location | Scope::Inherited),
    }
}

/// Whether a directive may stand in a place.
pub fn may_stand(directive: Directive, place: Place) -> bool
    ensures { result ≡ spec.may_stand directive place }
{
    holds(scope_of(directive), place)
}

/// The form of a directive.
#[tactic(auto, unfolding(crate::specs::Directives::form_of))]
pub fn form_of(directive: Directive) -> Form
    ensures { result ≡ spec.form_of directive }
{
    match directive {
        Directive::Events | Directive::Http | Directive::Server | Directive::Location =>
            Form::Block,
        Directive::InitByLua
        | Directive::RewriteByLua
        | Directive::AccessByLua
        | Directive::ContentByLua
        | Directive::HeaderFilterByLua
        | Directive::BodyFilterByLua
        | Directive::LogByLua => Form::Lua,
        _ => Form::Simple,
    }
}

/// Whether a directive may stand more than once in a block.
#[tactic(auto, unfolding(crate::specs::Directives::may_repeat))]
pub fn may_repeat(directive: Directive) -> bool
    ensures { result ≡ spec.may_repeat directive }
{
    matches!(
        directive,
        Directive::Server
            | Directive::Listen
            | Directive::ServerName
            | Directive::LuaSharedDict
            | Directive::Location
    )
}

/// Whether the directives are the same.
pub fn same(directive: Directive, other: Directive) -> bool
    ensures { result ≡ spec.same directive other }
{
    spelling(directive) == spelling(other)
}
