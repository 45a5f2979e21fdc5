ghost use Rattle.std.specs.Prelude.{◌≡◌, Some, Contains, codes, take};
ghost use Rattle.mv_base.specs.declared.number.NetId.{NetId};
ghost use Rattle.mv_net.specs.declared.parts.FlatLatch.{FlatLatch};
ghost use Rattle.mv_net.specs.declared.parts.NetParts.{NetParts};
ghost use Rattle.mv_net.specs.Nets.{slot, name_in};
ghost use Rattle.mv_net.specs.Formed.{WellFormed};
ghost use Rattle.mv_text.specs.Text.{head_word, told_name, text_of};

/// The text of a network begins with `.model`. In it the table of a latch's reset net begins with `.reset`, and the name behind
/// its arrow is that of the latch.
pub fn text_laws()
    ensures opens { (net : NetParts) → take 6 (text_of net) ≡ codes ".model" }
    ensures reset { (net : NetParts) (l : FlatLatch) (n : NetId) → WellFormed net
        → Contains net.latches l → l.reset ≡ Some n
        → head_word (slot net.nets n.0) ≡ codes ".reset" }
    ensures latch { (net : NetParts) (l : FlatLatch) (n : NetId) → WellFormed net
        → Contains net.latches l → l.reset ≡ Some n
        → told_name (slot net.nets n.0) ≡ name_in (slot net.nets l.output.0) }
{}
