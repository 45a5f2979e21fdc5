ghost use Rattle.mv_text_back.specs.Back.{ReadsBack};

use mv_net::Network;

/// The text of a network has no fault but limits, and reads as a sound design that means what the network means.
pub fn reads_back(net: &Network)
    ensures { ReadsBack net.now }
{
    net.well_formed();
}
