ghost use Rattle.std.specs.Prelude.{◌≡◌, ◌⊎◌, ◌+◌, ◌≤◌, length};
ghost use Rattle.vch_base.specs.Keyed.{of_key};
ghost use Rattle.vch_machine.specs.Naming.{same_handle};
ghost use Rattle.vch_frame.specs.Indices.{IsKeyed, index_of};
ghost use Rattle.vch_frame.specs.Releases.{let_at};
ghost use Rattle.vch_moves.specs.Works.{Changes, ChangesEach, Puts};
ghost use Rattle.vch_creating.specs.Changing as changing;
ghost use Rattle.vch_creating.specs.Changing.{MayDo, MayDoAll, MayShare, SharesIn, keys_in};

use vch_base::Key;
use vch_frame::{KeyIndex, Lets};
use vch_table::Indices;
use vch_values::Values;

/// The keys that a record is about: one, or all that have a manager in the version.
#[derive(Clone, Copy, Debug, PartialEq, Eq)]
pub enum AtKeys {
    One { key: Key },
    All,
}

/// What a record does at a key of the voucher that is formed.
///
/// A copy puts there what another voucher has, also where that is nothing. A removal takes away what is there, or, with another
/// voucher, what both have.
#[derive(Drop)]
pub enum Deed {
    Copy { from: Indices },
    Remove { from: Option<Indices> },
}

/// A deed at some keys.
#[derive(Drop)]
pub struct Change {
    pub keys: AtKeys,
    pub deed: Deed,
}

/// Whether both are none, or one index.
fn same_index(a: Option<u32>, b: Option<u32>) -> bool
    ensures { result ≡ same_handle a b }
{
    match (a, b) {
        (None, None) => true,
        (Some(a), Some(b)) => a == b,
        _ => false,
    }
}

/// What becomes of a key: nothing where it stays as it is, else the index that it gets, or none.
fn becomes(deed: &Deed, map: &Indices, key: Key) -> Option<Option<u32>>
    ensures { result ≡ changing.becomes deed.now map.now key }
{
    match deed {
        Deed::Copy { from } => Some(from.get(key.number())),
        Deed::Remove { from: None } => Some(None),
        Deed::Remove { from: Some(from) } => {
            if same_index(from.get(key.number()), map.get(key.number())) {
                Some(None)
            } else {
                None
            }
        }
    }
}

/// Takes one more reference of an entry of a key, if there is one.
fn share_index(values: &mut Values, key: Key, index: Option<u32>)
    requires { MayShare (of_key key values.old) index }
    ensures { SharesIn key index values.old values.new }
{
    if let Some(index) = index {
        values.share(key, index);
    }
}

/// Puts an index at a key of a voucher, or takes the key away. The index that was there is to be let go of, also where it is
/// put there again.
fn put(values: &mut Values, map: &mut Indices, lets: &mut Lets, key: Key, index: Option<u32>)
    requires shares { MayShare (of_key key values.old) index }
    requires keyed { IsKeyed map.old }
    requires room { length lets.old ≤ 11 }
    ensures puts { Puts (record { keyed = values.old; map = map.old; lets = lets.old }) key index (record { keyed = values.new; map = map.new; lets = lets.new }) }
    ensures keyed { IsKeyed map.new }
    ensures room { length lets.new ≤ length lets.old + 1 }
{
    share_index(values, key, index);
    if let Some(before) = map.get(key.number()) {
        lets.push(KeyIndex { key, index: before });
    }
    map.set(key.number(), index);
    map.know();
}

/// Carries a deed out at a key.
fn change_key(values: &mut Values, map: &mut Indices, lets: &mut Lets, key: Key, deed: &Deed)
    requires shares { MayDo key values.old deed.now }
    requires keyed { IsKeyed map.old }
    requires room { length lets.old ≤ 11 }
    ensures changes { Changes (record { keyed = values.old; map = map.old; lets = lets.old }) key (changing.becomes deed.now map.old key) (record { keyed = values.new; map = map.new; lets = lets.new }) }
    ensures keyed { IsKeyed map.new }
    ensures room { length lets.new ≤ length lets.old + 1 }
{
    if let Some(index) = becomes(deed, map, key) {
        put(values, map, lets, key, index);
    }
}

/// Carries a deed out at its keys. It takes constant time and no memory.
pub fn change_keys(
    values: &mut Values,
    map: &mut Indices,
    lets: &mut Lets,
    version: u32,
    keys: AtKeys,
    deed: &Deed,
)
    requires version { (version ≡ 1) ⊎ (version ≡ 2) }
    requires shares { MayDoAll values.old deed.now }
    requires keyed { IsKeyed map.old }
    requires room { length lets.old ≤ 8 }
    ensures { ChangesEach (changing.becomes deed.now) (keys_in version keys) (record { keyed = values.old; map = map.old; lets = lets.old }) (record { keyed = values.new; map = map.new; lets = lets.new }) }
{
    match keys {
        AtKeys::One { key } => change_key(values, map, lets, key, deed),
        AtKeys::All => {
            change_key(values, map, lets, Key::Importance, deed);
            change_key(values, map, lets, Key::Bank, deed);
            change_key(values, map, lets, Key::User, deed);
            if version == 2 {
                change_key(values, map, lets, Key::Test, deed);
            }
        }
    }
}
