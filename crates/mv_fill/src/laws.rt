ghost use Rattle.std.specs.Prelude.{◌≡◌, false, List};
ghost use Rattle.mv_entry.specs.Entries.{Entry};
ghost use Rattle.mv_net.specs.declared.parts.NetParts.{NetParts};
ghost use Rattle.mv_fill.specs.Fills.{FillsTables};

/// Where nothing is free, `fill` changes nothing, however far it comes.
pub fn strict_laws()
    ensures { (old new : NetParts) (steps : List Entry) → FillsTables false old steps new
        → new ≡ old }
{}
