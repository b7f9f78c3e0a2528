ghost use Rattle.std.specs.Prelude.{◌≡◌, ◌≤◌, [], Some, Err, length, IfOk, IfErr, IfSome, OnOk};
ghost use Rattle.reg_session.specs.declared.shelf.FetchFault.TheVariants.{Failed};
ghost use Rattle.reg_session.specs.Faults.{HasCause};
ghost use Rattle.reg_session.specs.Files.{FetchTells};

use reg_session::{FetchFault, Shelf};
use std::alloc::Global;

/// The bytes of a file of at most `limit` bytes, or why the shelf gave none.
pub(crate) fn fetch_file<F: Shelf>(
    alloc: Global,
    name: &str,
    shelf: &mut F,
    limit: usize,
) -> Result<Vec<u8>, FetchFault>
    ensures held { IfOk result (λ file. IfSome (F.files shelf.old) (λ map. map name.now ≡ Some file.items)) }
    ensures within { IfOk result (λ file. length file.items ≤ limit) }
    ensures told { IfErr result (λ fault. IfSome (F.files shelf.old) (λ map. FetchTells (map name.now) limit (Err fault) [])) }
    ensures quiet { OnOk result (F.fetch_faults shelf.new ≡ F.fetch_faults shelf.old) }
    ensures cause { IfErr result (λ fault. HasCause (F.fetch_faults shelf.old) (F.fetch_faults shelf.new) (fault ≡ Failed)) }
    ensures same { F.files shelf.new ≡ F.files shelf.old }
    ensures puts { F.put_faults shelf.new ≡ F.put_faults shelf.old }
{
    let mut file = Vec::new(alloc);
    match shelf.fetch(name, &mut file, limit) {
        Ok(()) => Ok(file),
        Err(fault) => Err(fault),
    }
}
