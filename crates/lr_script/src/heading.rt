//! The first line of a script.
ghost use Rattle.std.specs.Prelude.{◌≡◌, ◌≢◌, ◌<◌, IfSome, IsNone};
ghost use Rattle.lr_base.specs.declared.names.Config.{Config};
ghost use Rattle.lr_script.specs.declared.heading.Header.{Header};
ghost use Rattle.lr_script.specs.declared.heading.Name.{Name};
ghost use Rattle.lr_script.specs.Fields.{spaces, IsConfigFields};
ghost use Rattle.lr_script.specs.Script.{IsSetUp};
ghost use Rattle.lr_script.specs.Texts.{header_text, service_number, service_text, config_text};

use crate::fields::split_field;
use lr_base::{Config, read_number};

/// A service that a script may name.
#[derive(Clone, Copy, Debug, PartialEq, Eq)]
pub enum Name {
    Tally,
    Mail,
    Claims,
}

impl Name {
    /// The service's number in stable bytes.
    pub fn number(self) -> u8
        ensures { result ≡ service_number self }
    {
        match self {
            Name::Tally => 1,
            Name::Mail => 2,
            Name::Claims => 3,
        }
    }
}

/// What a script's first line says.
#[derive(Clone, Copy, PartialEq, Eq)]
pub struct Header {
    pub service: Name,
    pub config: Config,
}

// How many replicas and how many clients a script may ask for at most.
const MOST_REPLICAS: u64 = 9;

const MOST_CLIENTS: u64 = 64;

// The header that a line is.
pub fn header_of(line: &[u8]) -> Option<Header>
    ensures valid { IfSome result (λ header. IsSetUp header.config) }
    ensures text { IfSome result (λ header. line.now ≡ header_text header) }
    ensures none { IsNone result → (header : Header) → IsSetUp header.config → line.now ≢ header_text header }
{
    let fields = line.strip_prefix(b"lazyrep 1 ")?;
    let (service, fields) = split_field(fields);
    let service = service_of(service)?;
    let config = config_of(fields?)?;
    Some(Header { service, config })
}

fn service_of(field: &[u8]) -> Option<Name>
    ensures some { IfSome result (λ name. field.now ≡ service_text name) }
    ensures none { IsNone result → (name : Name) → field.now ≢ service_text name }
{
    if field == b"tally".as_slice() {
        return Some(Name::Tally);
    }
    if field == b"mail".as_slice() {
        return Some(Name::Mail);
    }
    if field == b"claims".as_slice() {
        return Some(Name::Claims);
    }
    None
}

// The fields of a header's line behind its service.
#[derive(Drop)]
struct ConfigFields<'a> {
    replicas: &'a [u8],
    clients: &'a [u8],
    delta: &'a [u8],
}

fn config_fields(fields: &[u8]) -> Option<ConfigFields<'_>>
    ensures some { IfSome result (λ it. IsConfigFields fields.now it.replicas.now it.clients.now it.delta.now) }
    ensures none { IsNone result → spaces fields.now < 2 }
{
    let (replicas, fields) = split_field(fields);
    let (clients, delta) = split_field(fields?);
    let delta = delta?;
    Some(ConfigFields {
        replicas,
        clients,
        delta,
    })
}

fn config_of(fields: &[u8]) -> Option<Config>
    ensures valid { IfSome result IsSetUp }
    ensures text { IfSome result (λ config. fields.now ≡ config_text config) }
    ensures none { IsNone result → (config : Config) → IsSetUp config → fields.now ≢ config_text config }
{
    let texts = config_fields(fields)?;
    let replicas = read_number(texts.replicas)?;
    let clients = read_number(texts.clients)?;
    let delta = read_number(texts.delta)?;
    if replicas < 1 {
        return None;
    }
    if MOST_REPLICAS < replicas {
        return None;
    }
    if clients < 1 {
        return None;
    }
    if MOST_CLIENTS < clients {
        return None;
    }
    Some(Config {
        replicas: replicas as u8,
        clients: clients as u32,
        delta,
    })
}
