use crate::state::State;

// A page: not started, or started on a panel of some size. It keeps no cell of its own, and no panel: each call is given one, which may
// be another than before, and refuses it where its size is another.
#[derive(Clone, Copy)]
pub struct Page {
    pub(crate) state: Option<State>,
}
