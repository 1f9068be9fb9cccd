use json_elements::Cause;
use lists::Text;
use thiserror::Error;

/// Why a schema file is refused. The codes are printed as S01 Xml, S02 NotJson, S03 Shape, S04 Missing, S05
/// BadAttribute and S06 Limit.
pub type SCode = Cause;

/// A refusal with the JSON pointer of the element or attribute, or out of memory.
#[derive(Debug, Drop, Error)]
pub enum SchemaErr {
    #[error("{0}")]
    Refused(SCode, Text),
    #[error("out of memory")]
    Memory,
}
