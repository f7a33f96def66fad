/// How a result is to be saved.
#[derive(Clone, Copy)]
pub struct Saving<'a> {
    /// Only where what stands at the path stays whole until all is saved.
    pub safe: bool,
    /// What the name of the old file gets at its end where it is to be kept.
    pub backup: Option<&'a str>,
}
