use mv_base::NetId;
use mv_cover::Cover;

/// A net whose table is put in for the net in the tables that read it, and what is known of that table: whether it allows
/// some value at every point, and whether it is plainly deterministic.
#[derive(Drop)]
pub struct Inner {
    pub net: NetId,
    pub cover: Cover,
    pub total: bool,
    pub plain: bool,
}
