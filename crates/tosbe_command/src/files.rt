use map_types::Repository;
use schema_check::Checked;

/// A schema and a mapping.
#[derive(Drop)]
pub(crate) struct BridgeFiles {
    pub(crate) checked: Checked,
    pub(crate) repository: Repository,
}
