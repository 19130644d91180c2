//! Numbers, names and lists of them, as they are printed.
ghost use Rattle.std.specs.Prelude.{◌≡◌, ◌++◌, codes, length, OnOk};
ghost use Rattle.std.specs.List.{flat_map};
ghost use Rattle.lr_report.specs.Printed.{joined_by, mark_text};
ghost use Rattle.lr_report.specs.Texts.{actor_text, cid_text, place_text, spot_text};

use lr_base::{Actor, Cid, NoMemory, Spot, Text, put_number};

pub fn put_actor(actor: Actor, out: &mut Text) -> Result<(), NoMemory>
    ensures { OnOk result (out.new ≡ out.old ++ actor_text actor) }
{
    match actor {
        Actor::Client(number) => {
            out.extend(b"c")?;
            put_number(number as u64, out)
        }
        Actor::Replica(number) => {
            out.extend(b"r")?;
            put_number(number as u64, out)
        }
    }
}

pub fn put_cid(cid: Cid, out: &mut Text) -> Result<(), NoMemory>
    ensures { OnOk result (out.new ≡ out.old ++ cid_text cid) }
{
    put_number(cid.client as u64, out)?;
    out.extend(b".")?;
    put_number(cid.seq, out)
}

pub fn put_spot(replicas: u8, spot: Spot, out: &mut Text) -> Result<(), NoMemory>
    ensures { OnOk result (out.new ≡ out.old ++ spot_text replicas spot) }
{
    put_place(replicas, spot.place, out)?;
    out.extend(b":")?;
    put_number(spot.number, out)
}

fn put_place(replicas: u8, place: u8, out: &mut Text) -> Result<(), NoMemory>
    ensures { OnOk result (out.new ≡ out.old ++ place_text replicas place) }
{
    if place == replicas {
        return out.extend(b"o");
    }
    put_number(place as u64, out)
}

// What a list may be of. Its text may ask for the count of replicas.
pub trait Element: Copy {
    ghost use Rattle.std.specs.Prelude.{ℕ, List};

    ghost text: { ℕ → Self → List ℕ };

    fn put(self, replicas: u8, out: &mut Text) -> Result<(), NoMemory>
        ensures { OnOk result (out.new ≡ out.old ++ text replicas self) };
}

impl Element for Cid {
    ghost text = { λ _ cid. cid_text cid };

    fn put(self, _replicas: u8, out: &mut Text) -> Result<(), NoMemory> {
        put_cid(self, out)
    }
}

impl Element for Spot {
    ghost text = { spot_text };

    fn put(self, replicas: u8, out: &mut Text) -> Result<(), NoMemory> {
        put_spot(replicas, self, out)
    }
}

impl Element for (u64, u64) {
    ghost text = { λ _ mark. mark_text mark };

    fn put(self, _replicas: u8, out: &mut Text) -> Result<(), NoMemory> {
        put_number(self.0, out)?;
        out.extend(b"/")?;
        put_number(self.1, out)
    }
}

// Adds the list's elements behind `out`, with a comma between each two, or a hyphen where there is none.
pub fn put_list<T: Element>(replicas: u8, list: &[T], out: &mut Text) -> Result<(), NoMemory>
    ensures { OnOk result (out.new ≡ out.old ++ joined_by (codes ",") (T.text replicas) list.now) }
{
    match list.split_first() {
        None => out.extend(b"-"),
        Some((first, others)) => {
            first.put(replicas, out)?;
            put_others(replicas, others, out)
        }
    }
}

fn put_others<T: Element>(replicas: u8, others: &[T], out: &mut Text) -> Result<(), NoMemory>
    ensures { OnOk result (out.new ≡ out.old
        ++ flat_map (λ other. codes "," ++ T.text replicas other) others.now) }
{
    for other in others {
        put_next(replicas, *other, out)?;
    }
    Ok(())
}

fn put_next<T: Element>(replicas: u8, item: T, out: &mut Text) -> Result<(), NoMemory>
    ensures { OnOk result (out.new ≡ out.old ++ (codes "," ++ T.text replicas item)) }
{
    out.extend(b",")?;
    item.put(replicas, out)
}
