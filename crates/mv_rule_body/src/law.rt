ghost use Rattle.std.specs.Prelude.{◌≡◌, ℕ};
ghost use Rattle.mv_body.specs.Bodies.{AreKnown, IsTidy, cover_said};
ghost use Rattle.mv_cover.specs.declared.cover.Cover.{Cover};
ghost use Rattle.mv_net.specs.declared.parts.NetParts.{NetParts};
ghost use Rattle.mv_net.specs.Formed.{WellFormed, IsCover};
ghost use Rattle.mv_rule_body.specs.Named.{AreHeld, body_of};

/// The body of a table over the nets of a well formed network, for a net of so many values. It names held nets that can be
/// read, it is tidy, and it says that table.
pub fn body_laws()
    ensures held { (net : NetParts) (values : ℕ) (c : Cover) → IsCover net.nets values c
        → AreHeld net.nets c }
    ensures known { (net : NetParts) (values : ℕ) (c : Cover) → IsCover net.nets values c
        → AreKnown net.nets (body_of net.nets c) }
    ensures tidy { (net : NetParts) (values : ℕ) (c : Cover) → WellFormed net
        → IsCover net.nets values c → IsTidy net.nets values (body_of net.nets c) }
    ensures said { (net : NetParts) (values : ℕ) (c : Cover) → WellFormed net
        → IsCover net.nets values c → cover_said net.nets (body_of net.nets c) ≡ c }
{}
