//! Values, features and layers, read, judged, written, copied and made anew.
mod canonical;
mod copying;
mod feature;
mod message;
mod rewriting;
mod support;
mod usual;
mod writing;
