//! A set-up of a layout that is capDL text or a `.system` file: its calls are those of a loader, which makes each object and fills each
//! slot. A text is written only where the program read it, ran it, and found its end laid out as the layout.
#![tactic(auto)]

mod asked;
mod calls;
mod laid_out;
mod laws;
mod listing;
mod making;
mod names;
mod path;
mod text;

pub use laid_out::is_laid_out;
pub use laws::{layouts_of_one_listing_are_laid_out_alike, listings_tell_layouts};
pub use making::{Importer, LayoutText};
pub use setup_layout::Reading;
