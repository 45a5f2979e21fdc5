ghost use Rattle.std.specs.Prelude.{◌≡◌, ℕ, map, List};
ghost use Rattle.std.specs.Option.{is_some};
ghost use Rattle.mv_base.specs.declared.number.NetId.{NetId};
ghost use Rattle.mv_design.specs.declared.table.FileTable.{FileTable};
ghost use Rattle.mv_rows.specs.declared.column.Column.{Column};
ghost use Rattle.mv_rows.specs.Renumbered.{AreRenumbered};
ghost use Rattle.mv_joint.specs.Plain.{AreApart, IsJointFile, is_joint_marked};
ghost use Rattle.mv_joint.specs.Joint.{IsMadeJoint};
ghost use Rattle.mv_joint.specs.declared.joint.JointTable.{JointTable};

/// A table of several outputs has at most one set of covers.
pub fn at_most_one_joint_table()
    ensures { (columns : List Column) (t : FileTable) (mark choice : NetId)
        (one other : JointTable) → AreApart columns mark choice
        → IsJointFile columns t → IsMadeJoint columns t mark choice one
        → IsMadeJoint columns t mark choice other → one ≡ other }
{}

/// A table gets a mark exactly where its rows and its default say so: whatever the numbers of the nets are, as long as the
/// nets have as many values and the same columns are of one net.
pub fn mark_laws()
    ensures exactly { (columns : List Column) (t : FileTable) (mark choice : NetId)
        (joint : JointTable)
        → IsMadeJoint columns t mark choice joint → is_some joint.mark ≡ is_joint_marked columns t }
    ensures numbers { (f g : List ℕ → Column) (nets : List (List ℕ)) (t : FileTable)
        → AreRenumbered f g nets
        → is_joint_marked (map f nets) t ≡ is_joint_marked (map g nets) t }
{}
