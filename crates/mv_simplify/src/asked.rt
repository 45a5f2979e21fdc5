use mv_rules::Terms;

/// What is asked of a command: how many steps its windows go down and from there up, and on what terms rules are applied.
#[derive(Clone, Copy)]
pub struct Asked {
    pub down: u8,
    pub up: u8,
    pub terms: Terms,
}
