use spec_model::RelList;

/// What is numbered beside the pairs of rows: on the current values of these relations, and on so many
/// answers. How often and in which order a relation stands in the list makes no difference.
#[derive(Drop)]
pub struct Wanted {
    pub currents: RelList,
    pub answers: u32,
}
