// The lines in front of a listing's instructions: their words as text, and their numbers.
use cat_pos::{List, Numbers, Text};

/// A position: the number of a file, a line and a column, whether or not there are such.
#[derive(Clone, Copy, Debug)]
pub struct ImagePos {
    pub file: u32,
    pub line: u32,
    pub column: u32,
}

pub type ImagePlaces = List<ImagePos>;

pub type ImageNames = List<Text>;

#[derive(Debug, Drop)]
pub struct ImageField {
    pub name: Text,
    pub ty: Text,
}

pub type ImageFields = List<ImageField>;

#[derive(Debug, Drop)]
pub struct ImageStructure {
    pub name: Text,
    pub fields: ImageFields,
}

pub type ImageStructures = List<ImageStructure>;

#[derive(Debug, Drop)]
pub struct ImageCase {
    pub name: Text,
    /// The type of the content, where there is one.
    pub content: Option<Text>,
}

pub type ImageCases = List<ImageCase>;

#[derive(Debug, Drop)]
pub struct ImageEnumeration {
    pub name: Text,
    pub cases: ImageCases,
}

pub type ImageEnumerations = List<ImageEnumeration>;

#[derive(Clone, Copy, Debug)]
pub enum ImageKind {
    Input,
    Output,
    Internal,
    Context,
    InputOutput,
    ContextOutput,
    Called,
}

#[derive(Debug, Drop)]
pub struct ImageItem {
    pub name: Text,
    pub kind: ImageKind,
    pub pos: ImagePos,
    /// The type, `condition` or the called scope, with the types of parameters behind it.
    pub what: Text,
}

pub type ImageItems = List<ImageItem>;

#[derive(Debug, Drop)]
pub struct ImageScope {
    pub name: Text,
    pub entry: u32,
    pub items: ImageItems,
}

pub type ImageScopes = List<ImageScope>;

#[derive(Debug, Drop)]
pub struct ImageTarget {
    /// The scope, the item, and the inner item of a called scope, parted by dots.
    pub place: Text,
    pub pos: ImagePos,
}

pub type ImageTargets = List<ImageTarget>;

#[derive(Debug, Drop)]
pub struct ImageConstant {
    pub ty: Text,
    /// What stands behind the type, JSON or not.
    pub value: Text,
}

pub type ImageConstants = List<ImageConstant>;

/// One list for each kind of line, in the order of the lines.
#[derive(Debug, Drop)]
pub struct ImageTables {
    pub files: ImageNames,
    pub structures: ImageStructures,
    pub enumerations: ImageEnumerations,
    pub scopes: ImageScopes,
    pub targets: ImageTargets,
    pub definitions: ImagePlaces,
    pub functions: Numbers,
    pub positions: ImagePlaces,
    pub constants: ImageConstants,
}
