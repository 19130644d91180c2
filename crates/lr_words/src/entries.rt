//! The entries of tables, one behind the other.
ghost use Rattle.std.specs.Prelude.{◌≡◌, ◌++◌, Some, None, flat_map, true, IfOk, OnOk, OnErr};
ghost use Rattle.std.specs.List.{list_all};
ghost use Rattle.std.specs.BTreeMap as tree;
ghost use Rattle.std.specs.Cmp.Lexicographic.{slice_cmp};
ghost use Rattle.std.specs.Ordering.{nat_cmp};
ghost use Rattle.lr_base.specs.Bytes.{times};
ghost use Rattle.lr_words.specs.Tables.{entry_bytes, entry_field, is_behind};
ghost use Rattle.lr_words.specs.TableLaws.{is_entry};
ghost use Rattle.lr_base.specs.Lasts.{ReadsEntry, ReadsRows, last_of};

use crate::stored::Stored;
use crate::word::Word;
use lr_base::{BadWhat, FieldFault, NoMemory, Text, fault_at};
use std::alloc::Global;
use std::collections::BTreeMap;

// Entries equal to these.
pub(crate) fn copied<V: Stored>(entries: &BTreeMap<Word, V>) -> Result<BTreeMap<Word, V>, NoMemory>
    ensures { IfOk result (λ copied. copied.entries ≡ entries.now.entries) }
{
    let copied = entries.clone()?;
    Ok(copied)
}

// Adds the bytes of each entry behind `out`.
pub(crate) fn put_entries<V: Stored>(
    entries: &BTreeMap<Word, V>,
    out: &mut Text,
) -> Result<(), NoMemory>
    ensures ok { OnOk result (out.new ≡ out.old ++ flat_map (entry_bytes V.format) entries.now.entries) }
    ensures real { OnOk result (list_all (is_entry V.format) entries.now.entries ≡ true) }
{
    for (name, value) in entries {
        put_entry(name, value, out)?;
    }
    Ok(())
}

fn put_entry<V: Stored>(name: &Word, value: &V, out: &mut Text) -> Result<(), NoMemory>
    ensures ok { OnOk result (out.new ≡ out.old ++ entry_bytes V.format (name.now, value.now)) }
    ensures real { OnOk result (is_entry V.format (name.now, value.now) ≡ true) }
{
    name.put(out)?;
    value.put(out)
}

// So many entries, and the bytes behind them.
pub(crate) fn entries_field<V: Stored>(
    alloc: Global,
    count: u64,
    bytes: &[u8],
) -> Result<(BTreeMap<Word, V>, &[u8]), FieldFault>
    ensures reads { ReadsRows (λ read. read.entries) (times (entry_field V.format) count None bytes.now) result }
    ensures order { IfOk result (λ parts. tree.IsOrdered (slice_cmp nat_cmp) parts.0) }
{
    let mut entries = BTreeMap::new(alloc);
    let mut rest = bytes;
    for _ in 0..count {
        let (name, value, end) = next_field::<V>(alloc, &entries, rest)?;
        insert(&mut entries, name, value)?;
        rest = end;
    }
    Ok((entries, rest))
}

// An entry that may come behind these.
fn next_field<'a, V: Stored>(
    alloc: Global,
    entries: &BTreeMap<Word, V>,
    bytes: &'a [u8],
) -> Result<(Word, V, &'a [u8]), FieldFault>
    ensures reads { ReadsEntry (entry_field V.format (last_of entries.now.entries) bytes.now) result }
    ensures order { IfOk result (λ parts. is_behind (last_of entries.now.entries) parts.0 ≡ true) }
{
    let (name, rest) = Word::field(alloc, bytes)?;
    if !is_behind(entries, &name) {
        return Err(fault_at(bytes, BadWhat::Order));
    }
    let (value, end) = V::field(alloc, rest)?;
    Ok((name, value, end))
}

// Whether the name stands behind the last of these, if there is one.
fn is_behind<V>(entries: &BTreeMap<Word, V>, name: &Word) -> bool
    ensures { result ≡ is_behind (last_of entries.now.entries) name.now }
{
    match entries.last_key_value() {
        Some((last, _)) => last < name,
        None => true,
    }
}

// Sets the value of a name.
pub(crate) fn insert<V: Drop>(
    entries: &mut BTreeMap<Word, V>,
    name: Word,
    value: V,
) -> Result<(), NoMemory>
    ensures entries { OnOk result (entries.new.entries
        ≡ tree.insert_entry (slice_cmp nat_cmp) entries.old.entries name value) }
    ensures updates { OnOk result (tree.Updates (slice_cmp nat_cmp) entries.old entries.new name (Some value)) }
    ensures before { tree.IsOrdered (slice_cmp nat_cmp) entries.old }
    ensures after { tree.IsOrdered (slice_cmp nat_cmp) entries.new }
    ensures err { OnErr result (entries.new.entries ≡ entries.old.entries) }
{
    entries.insert(name, value)?;
    Ok(())
}
