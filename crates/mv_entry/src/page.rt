/// The page in which the text of an entry is gathered, from nothing on.
pub type Page = mv_page::Page<0>;
