//! A listing as anyone may have made it: its lines to tables of words, and instructions.
#![tactic(auto)]

mod image;
mod instrs;
mod laws;
mod names;
mod read;
mod reading;
mod refusal;
mod row;
mod rows;
mod tables;
mod typed;
mod words;

pub use image::{Image, an_image_has_few_rows, an_image_is_listed};
pub use laws::{a_listing_is_an_image, a_text_has_one_image};
pub use read::read_listing;
pub use refusal::ImageRefusal;
pub use row::Row;
pub use tables::{
    ImageCase, ImageCases, ImageConstant, ImageConstants, ImageEnumeration, ImageEnumerations,
    ImageField, ImageFields, ImageItem, ImageItems, ImageKind, ImageNames, ImagePlaces, ImagePos,
    ImageScope, ImageScopes, ImageStructure, ImageStructures, ImageTables, ImageTarget,
    ImageTargets,
};

#[cfg(test)]
mod tests;
