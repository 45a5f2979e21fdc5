ghost use Rattle.mv_format.specs.Chosen.{format_of};
ghost use Rattle.mv_format.specs.Formats.{IsLawful};
ghost use Rattle.mv_format.specs.declared.format.FileFormat.{FileFormat};

/// Each format keeps what a format has to: what is read is well formed, of a text that is accepted and says no other network, and the
/// text of what rules left of it replaces that text.
pub fn format_laws()
    ensures { (format : FileFormat) → IsLawful (format_of format) }
{}
