ghost use Rattle.std.specs.Prelude.{◌≡◌, List, codes, take};
ghost use Rattle.mv_blif_text.specs.BlifText.{blif_text};
ghost use Rattle.mv_latch.specs.declared.latch.BlifLatch.{BlifLatch};
ghost use Rattle.mv_net.specs.declared.parts.NetParts.{NetParts};

/// The text of a network as BLIF begins with `.model`.
pub fn blif_text_laws()
    ensures opens { (net : NetParts) (bs : List BlifLatch)
        → take 6 (blif_text net bs) ≡ codes ".model" }
{}
