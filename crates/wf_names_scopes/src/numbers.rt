// Numbers and entries of tables that grow by a name at a time: a name keeps what it was given first.

ghost use Rattle.std.specs.Prelude.{◌≡◌, ◌+◌, not, ℕ, is_some, nat_eq, IfOk, OnOk};
ghost use Rattle.indexmap.specs.IndexMap.{get, keys};
ghost use Rattle.indexmap.specs.IndexSet.{insert_key};
ghost use Rattle.wf_names_rules.specs.Pairs.{Pair, same_pair, pair_at};
ghost use Rattle.wf_names_rules.specs.Tables.{has_number, number_at, pair_sort, pair_place, sort_at, place_at, names_known};
ghost use Rattle.wf_names_scopes.specs.Growing.{with_first};

use indexmap::IndexMap;
use std::collections::BTreeMap;
use wf_ast::TextId;
use wf_names_rules::sorts::Sort;
use wf_names_rules::tables::{Entry, Numbers, Variables};
use wf_text::faults::NoMemory;

// The last of all numbers.
const LAST: u32 = 4_294_967_295;

/// The number after this one. `Err` where there is none.
pub(crate) fn next_number(number: u32) -> Result<u32, NoMemory>
    ensures { IfOk result (λ next. next ≡ number + 1) }
{
    if number < LAST {
        Ok(number + 1)
    } else {
        Err(NoMemory)
    }
}

fn put_number(table: &mut IndexMap<u32, u32>, name: TextId, number: u32) -> Result<bool, NoMemory>
    ensures fresh { IfOk result (λ fresh. fresh ≡ not (is_some (get nat_eq table.old name.0))) }
    ensures table { OnOk result ((text : ℕ) → get nat_eq table.new text ≡ with_first nat_eq (get nat_eq table.old) name.0 number text) }
{
    if table.contains_key(&name.0) {
        return Ok(false);
    }
    table.insert(name.0, number)?;
    Ok(true)
}

/// Declares a name under the next number; whether it is new. `Err` where memory was refused or no number is left.
pub(crate) fn add_number(names: &mut Numbers, name: TextId) -> Result<bool, NoMemory>
    ensures fresh { IfOk result (λ fresh. fresh ≡ not (has_number names.old name.0)) }
    ensures next { OnOk result (names.new.next ≡ names.old.next + 1) }
    ensures numbers { OnOk result ((text : ℕ) → number_at names.new text ≡ with_first nat_eq (number_at names.old) name.0 names.old.next text) }
{
    let next = next_number(names.next)?;
    let fresh = put_number(&mut names.numbers, name, names.next)?;
    names.next = next;
    Ok(fresh)
}

fn put_variable(
    entries: &mut IndexMap<u32, Entry>,
    name: TextId,
    entry: Entry,
) -> Result<(), NoMemory>
    ensures entries { OnOk result ((text : ℕ) → get nat_eq entries.new text ≡ with_first nat_eq (get nat_eq entries.old) name.0 entry text) }
    ensures names { OnOk result (keys entries.new ≡ insert_key nat_eq (keys entries.old) name.0) }
{
    if entries.contains_key(&name.0) {
        return Ok(());
    }
    entries.insert(name.0, entry)?;
    Ok(())
}

/// Declares a variable at the next place, unless its name is known already. `Err` where memory was refused or no place
/// is left.
pub(crate) fn add_entry(variables: &mut Variables, name: TextId, sort: Sort) -> Result<(), NoMemory>
    ensures next { OnOk result (variables.new.next ≡ variables.old.next + 1) }
    ensures sorts { OnOk result ((text : ℕ) → sort_at variables.new text ≡ with_first nat_eq (sort_at variables.old) name.0 sort text) }
    ensures places { OnOk result ((text : ℕ) → place_at variables.new text ≡ with_first nat_eq (place_at variables.old) name.0 variables.old.next text) }
    ensures names { OnOk result (names_known variables.new ≡ insert_key nat_eq (names_known variables.old) name.0) }
{
    let next = next_number(variables.next)?;
    let entry = Entry {
        sort,
        place: variables.next,
    };
    put_variable(&mut variables.entries, name, entry)?;
    variables.next = next;
    Ok(())
}

/// Adds a pair of names, unless it stands for something already: then what it stood for is put back. Most pairs are new,
/// and these are looked up once.
pub(crate) fn put_pair<V: Copy + Drop>(
    table: &mut BTreeMap<(u32, u32), V>,
    key: (u32, u32),
    value: V,
) -> Result<(), NoMemory>
    ensures { OnOk result ((pair : Pair) → pair_at table.new pair ≡ with_first same_pair (pair_at table.old) key value pair) }
{
    match table.insert(key, value)? {
        None => Ok(()),
        Some(first) => {
            table.insert(key, first)?;
            Ok(())
        }
    }
}

/// The same of a field of the struct with the name `owner`.
pub(crate) fn add_field(
    fields: &mut BTreeMap<(u32, u32), Entry>,
    owner: TextId,
    name: TextId,
    entry: Entry,
) -> Result<(), NoMemory>
    ensures sorts { OnOk result ((key : Pair) → pair_sort fields.new key ≡ with_first same_pair (pair_sort fields.old) (owner.0, name.0) entry.sort key) }
    ensures places { OnOk result ((key : Pair) → pair_place fields.new key ≡ with_first same_pair (pair_place fields.old) (owner.0, name.0) entry.place key) }
{
    put_pair(fields, (owner.0, name.0), entry)
}
