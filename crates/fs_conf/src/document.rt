//! A document of TOML.

ghost use Rattle.std.specs.Prelude.{◌≡◌, None, Some, IfOk, IsErrOf};
ghost use Rattle.toml.specs.View.{table_view};
ghost use Rattle.fs_conf.specs.Document.{document_of};

use crate::config::ConfFault;
use std::alloc::Global;
use std::str;
use toml::Table;

/// The table of a document in UTF-8.
pub(crate) fn read_document(alloc: Global, octets: &[u8]) -> Result<Table, ConfFault>
    ensures ok { IfOk result (λ table. document_of octets.now ≡ Some (table_view table)) }
    ensures refused { IsErrOf result ConfFault.Refused → document_of octets.now ≡ None }
{
    let Ok(text) = str::from_utf8(octets) else {
        return Err(ConfFault::Refused);
    };
    match toml::table_from_str(alloc, text) {
        Ok(table) => Ok(table),
        Err(error) if error.is_memory() => Err(ConfFault::Memory),
        Err(_) => Err(ConfFault::Refused),
    }
}
