//! Tables keyed by characters: how often each is in a text.
ghost use Rattle.std.specs.Prelude.{◌+◌, ◌<◌, ◌^◌, IfOk, OnOk, nat_eq};
ghost use Rattle.std.specs.BTreeMap as tree;
ghost use Rattle.std.specs.HashMap as hash;
ghost use Rattle.std.specs.Map.{count_at};
ghost use Rattle.std.specs.Ordering.{nat_cmp};
ghost use Rattle.std.specs.Str.{chars};
ghost use Rattle.examples.specs.Tables.{CountsEach, CountsOneMore};

use encode_unicode::{StrExt, Utf8Char};
use std::alloc::{AllocError, Global};
use std::collections::{BTreeMap, HashMap};

/// How often each character is in the text.
#[tactic(auto, using(crate::proofs::TableLemmas::all_counted))]
pub fn count_characters(alloc: Global, text: &str) -> Result<BTreeMap<Utf8Char, usize>, AllocError>
    ensures { IfOk result (λ table. CountsEach (chars text.now) (tree.get nat_cmp table)) }
{
    let mut table = BTreeMap::new(alloc);
    for c in text.utf8chars() {
        count_one(&mut table, c)?;
    }
    Ok(table)
}

/// Counts the character once more.
pub fn count_one(table: &mut BTreeMap<Utf8Char, usize>, c: Utf8Char) -> Result<(), AllocError>
    requires { count_at (tree.get nat_cmp table.old) c + 1 < 2 ^ 64 }
    ensures { OnOk result (CountsOneMore (tree.get nat_cmp table.old) (tree.get nat_cmp table.new) c) }
{
    *table.entry(c)?.or_insert(0) += 1;
    Ok(())
}

/// How often each character is in the text, in a hash map.
#[tactic(auto, using(crate::proofs::TableLemmas::all_counted))]
pub fn hash_characters(alloc: Global, text: &str) -> Result<HashMap<Utf8Char, usize>, AllocError>
    ensures { IfOk result (λ table. CountsEach (chars text.now) (hash.get nat_eq table)) }
{
    let mut table = HashMap::new(alloc);
    for c in text.utf8chars() {
        hash_one(&mut table, c)?;
    }
    Ok(table)
}

/// Counts the character once more.
pub fn hash_one(table: &mut HashMap<Utf8Char, usize>, c: Utf8Char) -> Result<(), AllocError>
    requires { count_at (hash.get nat_eq table.old) c + 1 < 2 ^ 64 }
    ensures { OnOk result (CountsOneMore (hash.get nat_eq table.old) (hash.get nat_eq table.new) c) }
{
    *table.entry(c)?.or_insert(0) += 1;
    Ok(())
}
