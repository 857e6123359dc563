// Whether rids that were read bear out the numbers of a catalog.

ghost use Rattle.std.specs.Prelude.{◌↔◌, IsTrue};
ghost use Rattle.ov_read.specs.Agreement.{IsBorneOut};

use ov_member::Members;

/// Whether these are so many rids, none of them over `last`.
pub(crate) fn is_borne_out(rids: &Members, count: u32, last: u32) -> bool
    ensures { IsTrue result ↔ IsBorneOut count last rids.now }
{
    rids.len() == count
        && match rids.greatest() {
            Some(rid) => rid <= last,
            None => true,
        }
}
