//! What no clause says of the pages: their bytes, and that calls succeed with ample memory.

mod appended;
mod base;
mod broken;
mod bytes;
mod cases;
mod format;
mod header;
mod node;
mod pip;
mod pointer;
mod printing;
mod rle;
mod rowcode;
mod slots;
mod sortkey;
mod steps;
mod tip;
mod value;
mod values;
mod version;
