pub use reading::decode_frame;
pub use writing::{encode_frame, frame_len};

mod reading;
mod writing;
