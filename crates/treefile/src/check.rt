// The check of a whole tree file.
ghost use Rattle.std.specs.Prelude.{◌≡◌, IfOk};
ghost use Rattle.std.specs.Result.{result_map_both};
ghost use Rattle.treefile.specs.Checked.{file_check};
ghost use Rattle.treefile.specs.Laws.{CheckLaws};

use crate::fault::TreeFault;
use crate::trailer::check_trailer;
use crate::tree::Tree;

// The tree of a file that passes, or the first fault, in the order of their numbers. A file that passes spells exactly
// one tree, a tree passes exactly where it is one that a file may hold, and the first fault of a tree is that of the first
// node in preorder, each tested alone.
pub fn check(file: &[u8]) -> Result<Tree<'_>, TreeFault>
    ensures value { result_map_both (λ tree. tree.areas.trailer) (λ e. e) result ≡ file_check file.now }
    ensures file { IfOk result (λ tree. tree.areas.file.now ≡ file.now) }
    ensures laws { CheckLaws file.now }
{
    let areas = check_trailer(file)?;
    areas.check_names()?;
    areas.check_records()?;
    areas.check_tree()?;
    Ok(Tree { areas })
}
