// A finished plan: for each step the place of a triple pattern and a choice, and the count of steps.
// Numbers past the last step are 0.
#[derive(Clone, Copy)]
pub struct Plan {
    pub steps: [u8; 16],
    pub count: usize,
}
