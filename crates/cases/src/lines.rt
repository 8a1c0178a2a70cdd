// The lines of the case text: how they come in, which call each makes, the lines of a reply, and what is told of a line that could not be read.
pub(crate) mod calls;
mod fault;
pub(crate) mod held;
pub(crate) mod input;
pub(crate) mod lent;
pub(crate) mod limits;
pub(crate) mod named_calls;
pub(crate) mod naming;
pub(crate) mod order;
pub(crate) mod parted;
pub(crate) mod reply;
pub(crate) mod slots;
pub(crate) mod template_numbers;
pub(crate) mod told;
pub(crate) mod values;
pub(crate) mod written;
