/// What a run made of bytes.
#[derive(Drop)]
pub struct Outcome {
    /// The program's exit status.
    pub status: u8,
    /// What it prints.
    pub answers: Vec<u8>,
    /// The file that it saves.
    pub saved: Vec<u8>,
    /// What standard error is told where a fault ended it.
    pub message: Vec<u8>,
}
