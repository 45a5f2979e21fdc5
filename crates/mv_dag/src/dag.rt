ghost use Rattle.std.specs.Prelude.{◌≡◌, ◌+◌, ◌<◌, ◌≤◌, ◌↔◌, ℕ, true, length, IfOk, IsTrue, MatchBool, OnOk, OnErr, All};
ghost use Rattle.mv_base.specs.declared.number.NetId.{NetId};
ghost use Rattle.mv_base.specs.declared.limits.TheConstants.{MAX_NETS};
ghost use Rattle.mv_graph.specs.Nets.{has_id, row, ids_ascend, all_differ, AllBelow, IsAscending};
ghost use Rattle.mv_graph.specs.Above.{IsAbove, IsAcyclic, reads_by};
ghost use Rattle.mv_dag.specs.declared.new_rows.NewRow.{NewRow};
ghost use Rattle.mv_dag.specs.Rows.{nets_of, changed_rows};
ghost use Rattle.mv_dag.specs.Ordered.{IsOrderOf};

use crate::above::{below, is_above};
use crate::change::change_nets;
use crate::label::Label;
use crate::new_rows::NewRow;
use crate::orders::{first_labels, order_of};
use crate::rows::row_of;
use mv_base::{Items, MAX_NETS, Memory, NetId};
use mv_graph::{sorted, transposed};
use std::alloc::Global;
use std::marker::Model;

/// A graph of nets by number without cycles, which keeps for each net its readers, and an order of all (Pearce and Kelly 2006),
/// while it changes. It is seen as the lists of what each net reads.
#[derive(Drop)]
pub struct Dag {
    fanins: Items<Items<NetId>>,
    readers: Items<Items<NetId>>,
    labels: Vec<Label>,
}

impl Model for Dag {
    ghost use Rattle.std.specs.Prelude.{List};
    ghost use Rattle.mv_base.specs.declared.number.NetId.{NetId};
    ghost use Rattle.mv_dag.specs.Dag.{IsDag};

    ghost Value = { List (List NetId) };

    ghost view = { λ d. d.fanins };

    ghost invariant = { λ d. IsDag d.fanins d.readers d.labels.items };
}

impl Dag {
    /// The graph in which each net reads these, ascending. The time grows with the number of nets and fanins.
    pub fn of(alloc: Global, fanins: Items<Items<NetId>>) -> Result<Dag, Memory>
        requires ascend { (n : ℕ) → ids_ascend (row fanins n) ≡ true }
        requires below { AllBelow fanins }
        requires acyclic { IsAcyclic (reads_by fanins) }
        requires few { length fanins ≤ MAX_NETS }
        ensures { IfOk result (λ dag. dag ≡ fanins) }
    {
        let order = sorted(alloc, fanins.as_slice())?.unwrap();
        let readers = transposed(alloc, fanins.as_slice())?;
        let labels = first_labels(alloc, fanins.as_slice(), order.as_slice())?;
        Ok(Dag {
            fanins,
            readers,
            labels,
        })
    }

    /// Changes the graph: so many numbers come, and then nets are given other rows, each net at most one. The time grows with
    /// the rows, old and new, with searches and moves in lists of readers, and with the nets that have to change their places
    /// in the order. On an error the graph is as before.
    pub fn change(&mut self, added: usize, rows: Items<NewRow>) -> Result<(), Memory>
        requires few { length self.old + added ≤ MAX_NETS }
        requires once { all_differ (nets_of rows) ≡ true }
        requires nets { All (λ (r : NewRow). r.net.0 < length self.old + added) rows }
        requires ascend { (n : ℕ) → ids_ascend (row (changed_rows rows added self.old) n) ≡ true }
        requires below { AllBelow (changed_rows rows added self.old) }
        requires acyclic { IsAcyclic (reads_by (changed_rows rows added self.old)) }
        ensures ok { OnOk result (self.new ≡ changed_rows rows added self.old) }
        ensures err { OnErr result (self.new ≡ self.old) }
    {
        let count = self.fanins.len();
        let changed = change_nets(
            &mut self.fanins,
            &mut self.readers,
            &mut self.labels,
            added,
            rows,
        );
        match changed {
            Ok(()) => Ok(()),
            Err(error) => {
                self.fanins.truncate(count);
                self.readers.truncate(count);
                self.labels.truncate(count);
                Err(error)
            }
        }
    }

    /// No net is above itself, and each list of fanins ascends and has only numbers of the graph.
    pub fn well_formed(&self)
        ensures acyclic { IsAcyclic (reads_by self.now) }
        ensures below { AllBelow self.now }
        ensures ascend { (n : ℕ) → ids_ascend (row self.now n) ≡ true }
        ensures few { length self.now ≤ MAX_NETS }
    {
        let _ = &self.fanins;
    }

    /// How many numbers there are. No memory.
    pub fn len(&self) -> usize
        ensures { result ≡ length self.now }
    {
        self.fanins.len()
    }

    /// What a net reads, ascending, and nothing for a number past the last. No memory.
    pub fn fanins(&self, net: NetId) -> &[NetId]
        ensures { result.now ≡ row self.now net.0 }
    {
        row_of(self.fanins.as_slice(), net)
    }

    /// The nets that read this one, ascending, and none for a number past the last. No memory.
    pub fn readers(&self, net: NetId) -> &[NetId]
        ensures { IsAscending (λ n. has_id (row self.now n) net.0) result.now }
    {
        row_of(self.readers.as_slice(), net)
    }

    /// Whether the one net is above the other, for any two numbers. Only nets between the two in the order are looked at.
    pub fn is_above(&self, above: NetId, net: NetId) -> Result<bool, Memory>
        ensures { IfOk result
            (λ yes. MatchBool yes (IsAbove (reads_by self.now) above.0 net.0)
            (IsAbove (reads_by self.now) above.0 net.0 → ⊥)) }
    {
        let yes = is_above(
            self.fanins.allocator(),
            self.fanins.as_slice(),
            self.readers.as_slice(),
            self.labels.as_slice(),
            above,
            net,
        )?;
        Ok(yes)
    }

    /// The nets of which this one is above, ascending, and none for a number past the last. The time grows with their number
    /// and that of what they read.
    pub fn below(&self, net: NetId) -> Result<Items<NetId>, Memory>
        ensures ascending { IfOk result (λ nets. ids_ascend nets ≡ true) }
        ensures members { IfOk result
            (λ nets. (n : ℕ) → IsTrue (has_id nets n) ↔ IsAbove (reads_by self.now) net.0 n) }
    {
        let nets = below(
            self.fanins.allocator(),
            self.fanins.as_slice(),
            self.readers.as_slice(),
            net,
        )?;
        Ok(nets)
    }

    /// These nets in an order in which each stands behind those of them that it reads.
    pub fn order_among(&self, nets: &[NetId]) -> Result<Vec<NetId>, Memory>
        requires once { all_differ nets.now ≡ true }
        ensures { IfOk result (λ order. IsOrderOf self.now nets.now order.items) }
    {
        let order = order_of(
            self.fanins.allocator(),
            self.labels.as_slice(),
            self.fanins.as_slice(),
            nets,
        )?;
        Ok(order)
    }
}
