ghost use Rattle.std.specs.Prelude.{◌≡◌, ◌≤◌, true, length, IfOk, MatchOption};
ghost use Rattle.mv_base.specs.Names.{is_net_name};
ghost use Rattle.mv_net.specs.Fresh.{is_taken, IsFreeName, IsFreshName};

use crate::Network;
use crate::made::made_name;
use mv_base::{Memory, Name};
use std::alloc::Global;

impl Network {
    /// `_m` and a decimal number: of the positive numbers whose name no net has, the one behind `skip` smaller ones. It is a
    /// lawful name, and no longer than a certificate's words. Up to which number nets have all such names is kept, and the numbers behind it are looked up one by one.
    pub fn fresh_name(&self, skip: u32) -> Result<Name, Memory>
        ensures fresh { IfOk result (λ name. IsFreshName self.now.nets skip name) }
        ensures lawful { IfOk result (λ name. is_net_name name ≡ true) }
        ensures short { IfOk result (λ name. length name ≤ 1024) }
    {
        self.few();
        let alloc = self.parts().nets.allocator();
        let mut left = skip;
        for number in u64::from(self.made()) + 1..u64::MAX {
            if let Some(name) = self.free_name(alloc, number)? {
                if left == 0 {
                    return Ok(name);
                }
                left -= 1;
            }
        }
        unreachable!()
    }

    /// The made name with this number, if no net has it.
    fn free_name(&self, alloc: Global, number: u64) -> Result<Option<Name>, Memory>
        ensures { IfOk result
            (λ free. MatchOption free (is_taken self.now.nets number ≡ true)
            (IsFreeName self.now.nets number)) }
    {
        let name = made_name(alloc, number)?;
        if self.find(name.bytes()).is_some() {
            return Ok(None);
        }
        Ok(Some(name))
    }
}
