//! Laws of partitions and of dirty sets, for the proofs of the crates above. Each is the contract
//! of a function without a body.
ghost use Rattle.tt_parts.specs.Laws.{SamePartitionsAreEqual, EachPartitionIsInItsList, MatchedRowsLieInEquatedPartitions, RowsLieInTheirKeyPartition, SameMembersWithRow, ClearDependsOnMembers, ReadsDecideClear};

/// Two partitions are the same exactly where they are equal.
pub fn same_partitions_are_equal()
    ensures { SamePartitionsAreEqual }
{}

/// Each partition of a list is in the list.
pub fn each_partition_is_in_its_list()
    ensures { EachPartitionIsInItsList }
{}

/// A row in which every condition of a statement holds lies in the partition of each equality that
/// is on a partition column.
pub fn matched_rows_lie_in_equated_partitions()
    ensures { MatchedRowsLieInEquatedPartitions }
{}

/// A row with a key lies in the partition of its key, on a table that has a first column.
pub fn rows_lie_in_their_key_partition()
    ensures { RowsLieInTheirKeyPartition }
{}

/// Sets with the same members have the same members after a row gets dirty in both.
pub fn same_members_with_row()
    ensures { SameMembersWithRow }
{}

/// Whether a statement is clear depends only on the members of the set.
pub fn clear_depends_on_members()
    ensures { ClearDependsOnMembers }
{}

/// A statement is clear by its partitions exactly where it is clear by its reads.
pub fn reads_decide_clear()
    ensures { ReadsDecideClear }
{}
