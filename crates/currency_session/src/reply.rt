use report_model::Report;

/// What a question is answered with.
#[derive(Drop)]
pub enum Reply {
    /// The kept report at this place: one that was kept before and shows its verdict, or a new one, which was put last.
    Kept(usize),
    /// A report that the search was cut off. It is not kept.
    Open(Report),
}
