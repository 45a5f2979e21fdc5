ghost use Rattle.mv_base.specs.Outside.{Appends};
ghost use Rattle.mv_format.specs.Chosen.{format_of, HasSettings};

use crate::format::FileFormat;
use mv_base::{Failed, Sink};
use mv_blif_read::FileNetwork;
use mv_blif_write::write_blif;
use mv_write::write;

/// Puts the text of a network in this format. At Failed some first part of it was taken. It takes no memory.
pub fn write_network<K: Sink>(
    format: FileFormat,
    file: &FileNetwork,
    out: &mut K,
) -> Result<(), Failed>
    requires { HasSettings format file.now }
    ensures { Appends (K.state out.old) (K.state out.new) ((format_of format).text file.now) result }
{
    match format {
        FileFormat::BlifMv => write(&file.net, out),
        FileFormat::Blif => write_blif(&file.net, file.latches.as_slice(), out),
    }
}
