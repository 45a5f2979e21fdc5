/// A format of network files.
#[derive(Clone, Copy, Debug, PartialEq, Eq)]
pub enum FileFormat {
    /// BLIF-MV, as VIS and MVSIS read and write it.
    BlifMv,
    /// BLIF, as SIS, ABC and yosys read and write it.
    Blif,
}
