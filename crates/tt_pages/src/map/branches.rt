// The branches of a fork.
ghost use Rattle.std.specs.Prelude.{◌≡◌, ◌<◌, ◌++◌, length, IfOk, OnOk};
ghost use Rattle.tt_pages.specs.MapTree.{AreBranches, branch_depth};
ghost use Rattle.tt_pages.specs.MapBranches.{IsBranchFor};

use super::page::MAX_WIDTH;
use super::tree::Branch;
use std::alloc::{AllocError, Global};

// The place of the branch that the key belongs to. The search begins at the end, where keys that
// are inserted in ascending order belong, and passes over four branches at a time as long as it can.
pub(super) fn branch_for<V>(branches: &[Branch<V>], key: &i64) -> usize
    requires { AreBranches (branch_depth branches.now) branches.now }
    ensures within { result < length branches.now }
    ensures is_for { IsBranchFor key.now branches.now result }
{
    let mut at = branches.len() - 1;
    while at >= 4 && branches[at - 3].is_above(key) {
        at -= 4;
    }
    while at > 0 && branches[at].is_above(key) {
        at -= 1;
    }
    at
}

// Other owners of the same trees.
pub(super) fn share_branches<V: Drop>(
    alloc: Global,
    branches: &[Branch<V>],
) -> Result<Vec<Branch<V>>, AllocError>
    ensures { IfOk result (λ copy. copy.items ≡ branches.now) }
{
    let mut copy = Vec::with_capacity(alloc, MAX_WIDTH)?;
    add_shared(&mut copy, branches)?;
    Ok(copy)
}

pub(super) fn add_shared<V: Drop>(
    to: &mut Vec<Branch<V>>,
    branches: &[Branch<V>],
) -> Result<(), AllocError>
    ensures { OnOk result (to.new.items ≡ to.old.items ++ branches.now) }
{
    for branch in branches {
        to.push(branch.share()?)?;
    }
    Ok(())
}
