//! The rows of a keeper alone.

ghost use Rattle.std.specs.Prelude.{◌≡◌, ◌≢◌, IfErr, IfOk, None, Some};
ghost use Rattle.node_keepers.specs.InFiles.{Tells};
ghost use Rattle.node_store.specs.declared.fault.StoreFault.TheVariants.{BadRow, OldLayout};

use node_store::{Keep, Kept, StoreFault};
use ocpi_types::Row;

/// The rows of a keeper.
pub(crate) fn load_rows<K: Keep>(keep: &mut K) -> Result<Vec<Row>, StoreFault>
    ensures rows { K.is_honest keep.new → IfOk result (λ v. Tells (K.content keep.old) (Some v.items)) }
    ensures bad { K.is_honest keep.new → IfErr result (λ e. e ≡ BadRow → Tells (K.content keep.old) None) }
    ensures layout { IfErr result (λ e. e ≢ OldLayout) }
    ensures kept { K.is_honest keep.new → K.content keep.new ≡ K.content keep.old }
    ensures honest { K.is_honest keep.new → K.is_honest keep.old }
{
    match keep.load() {
        Ok(kept) => {
            let Kept { rows, line: _ } = kept;
            Ok(rows)
        }
        Err(fault) => Err(fault),
    }
}
