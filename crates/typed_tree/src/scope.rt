use boogie_tree::VarInfo;

/// What is seen at a place.
#[derive(Clone, Copy)]
pub struct Scope<'a> {
    /// The constants and globals.
    pub globals: &'a [VarInfo],
    /// Whether the globals that are no constants are seen.
    pub variables: bool,
    /// The locals that are seen, from the first on.
    pub locals: &'a [VarInfo],
    /// Whether `old` may stand.
    pub old: bool,
}
