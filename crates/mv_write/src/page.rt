/// The page in which the text of a network is gathered. The first piece that it hands on has at least the six bytes of
/// `.model`.
pub type Page = mv_page::Page<6>;
