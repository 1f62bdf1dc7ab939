/// What a text is read for: its kind, which says what stands after its head.
#[derive(Clone, Copy)]
pub enum Purpose {
    /// To check a plan and its prices, which stand after the head.
    Checking,
    /// To plan: the text is a head alone.
    Planning,
    /// To play a script: commands stand after the head of a job.
    Playing,
    /// To run a job: the text is a head alone.
    Running,
}
