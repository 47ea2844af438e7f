//! What stands at the keys of a TOML table.

ghost use Rattle.std.specs.Prelude.{◌≡◌, ◌≤◌, map, string_bytes, option_map, option_and_then, IfSome, OnOk, ◌++◌, ◌∷◌, []};
ghost use Rattle.std.specs.{BTreeMap.{keys}, List.{list_all}, Option.{option_copied}};
ghost use Rattle.toml.specs.{Data.{get_member, as_str, as_array}, View.{view, array_view, table_view}};
ghost use Rattle.fs_conf.specs.Fields.{flag_or, is_named, keys_among, number_in, number_or};

use fs_base::Memory;
use toml::value::Array;
use toml::{Table, Value};

/// The value at a key.
pub(crate) fn value_at<'a>(table: &'a Table, key: &str) -> Option<&'a Value>
    ensures { option_map (λ v. view v.now) result ≡ get_member key.now (table_view table.now) }
{
    table.get(key)
}

/// The integer from `low` to `high` at a key.
pub(crate) fn number_at(table: &Table, key: &str, low: u32, high: u32) -> Option<u32>
    ensures value { result ≡ number_in low high (get_member key.now (table_view table.now)) }
    ensures within { IfSome result (λ n. (low ≤ n) × (n ≤ high)) }
{
    match value_at(table, key) {
        Some(Value::Integer(n)) => match u32::try_from(*n) {
            Ok(n) if low <= n && n <= high => Some(n),
            _ => None,
        },
        _ => None,
    }
}

/// The integer from `low` to `high` at a key, `default` where the key is missing.
pub(crate) fn number_or(table: &Table, key: &str, default: u32, low: u32, high: u32) -> Option<u32>
    ensures value { result ≡ number_or default low high (get_member key.now (table_view table.now)) }
    ensures within { default ≤ high → IfSome result (λ n. n ≤ high) }
{
    match value_at(table, key) {
        None => Some(default),
        Some(_) => number_at(table, key, low, high),
    }
}

/// The boolean at a key, `default` where the key is missing.
pub(crate) fn flag_at(table: &Table, key: &str, default: bool) -> Option<bool>
    ensures { result ≡ flag_or default (get_member key.now (table_view table.now)) }
{
    match value_at(table, key) {
        None => Some(default),
        Some(Value::Boolean(flag)) => Some(*flag),
        Some(_) => None,
    }
}

/// The string at a key.
pub(crate) fn text_at<'a>(table: &'a Table, key: &str) -> Option<&'a str>
    ensures { option_copied result ≡ option_and_then as_str (get_member key.now (table_view table.now)) }
{
    value_at(table, key)?.as_str()
}

/// The array at a key.
pub(crate) fn array_at<'a>(table: &'a Table, key: &str) -> Option<&'a Array>
    ensures { option_map (λ v. array_view v.now) result
        ≡ option_and_then as_array (get_member key.now (table_view table.now)) }
{
    value_at(table, key)?.as_array()
}

// Whether each key of the table is one of these names.
fn each_key_among(table: &Table, names: &[&str]) -> bool
    ensures { result ≡ list_all (λ key. is_named names.now (string_bytes key)) (keys table.now) }
{
    table.keys().all(|key| names.contains(&key.as_str()))
}

/// Whether the table has no key but these.
pub(crate) fn has_only(table: &Table, names: &[&str]) -> bool
    ensures { result ≡ keys_among (map (λ name. name.now) names.now) (table_view table.now) }
{
    each_key_among(table, names)
}

/// Appends an item.
pub(crate) fn keep<T: Drop>(list: &mut Vec<T>, item: T) -> Result<(), Memory>
    ensures { OnOk result (list.new.items ≡ list.old.items ++ item ∷ []) }
{
    list.push(item)?;
    Ok(())
}
