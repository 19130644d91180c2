//! The kinds of messages that a picture tells apart.
ghost use Rattle.std.specs.Prelude.{◌≡◌, ◌≢◌};
ghost use Rattle.lr_draw.specs.Kinds.{IsNamed, IsNoReplicasKind, kind_name};
ghost use Rattle.lr_draw.specs.declared.kinds.Kind.{Kind};

/// What a message is, by the first word of its description. All that isn't known is `Other`.
#[derive(Clone, Copy, PartialEq, Eq)]
pub enum Kind {
    Update,
    Query,
    Ack,
    Done,
    Answer,
    Gossip,
    Ask,
    Give,
    Prepare,
    Prepared,
    Freeze,
    Frozen,
    Other,
}

/// All kinds, in the order of the legend.
pub const KINDS: [Kind; 13] = [
    Kind::Update,
    Kind::Query,
    Kind::Ack,
    Kind::Done,
    Kind::Answer,
    Kind::Gossip,
    Kind::Ask,
    Kind::Give,
    Kind::Prepare,
    Kind::Prepared,
    Kind::Freeze,
    Kind::Frozen,
    Kind::Other,
];

impl Kind {
    /// The kind's name, which is also the name of its class in the picture.
    pub fn name(self) -> &'static str
        ensures { result.now ≡ kind_name self }
    {
        match self {
            Kind::Update => "update",
            Kind::Query => "query",
            Kind::Ack => "ack",
            Kind::Done => "done",
            Kind::Answer => "answer",
            Kind::Gossip => "gossip",
            Kind::Ask => "ask",
            Kind::Give => "give",
            Kind::Prepare => "prepare",
            Kind::Prepared => "prepared",
            Kind::Freeze => "freeze",
            Kind::Frozen => "frozen",
            Kind::Other => "other",
        }
    }
}

/// The kind that a word names.
pub fn kind_of(word: &[u8]) -> Kind
    ensures named { IsNamed word.now result }
    ensures other { result ≡ Kind.Other → (kind : Kind) → kind ≢ Kind.Other → word.now ≢ kind_name kind }
{
    if word == b"update".as_slice() {
        return Kind::Update;
    }
    if word == b"query".as_slice() {
        return Kind::Query;
    }
    if word == b"ack".as_slice() {
        return Kind::Ack;
    }
    if word == b"done".as_slice() {
        return Kind::Done;
    }
    if word == b"answer".as_slice() {
        return Kind::Answer;
    }
    if word == b"gossip".as_slice() {
        return Kind::Gossip;
    }
    replicas_kind_of(word)
}

// The kinds of messages that only replicas send for themselves.
fn replicas_kind_of(word: &[u8]) -> Kind
    ensures named { IsNamed word.now result }
    ensures other { result ≡ Kind.Other → IsNoReplicasKind word.now }
{
    if word == b"ask".as_slice() {
        return Kind::Ask;
    }
    if word == b"give".as_slice() {
        return Kind::Give;
    }
    if word == b"prepare".as_slice() {
        return Kind::Prepare;
    }
    if word == b"prepared".as_slice() {
        return Kind::Prepared;
    }
    if word == b"freeze".as_slice() {
        return Kind::Freeze;
    }
    if word == b"frozen".as_slice() {
        return Kind::Frozen;
    }
    Kind::Other
}
