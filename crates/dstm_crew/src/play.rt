use dstm_options::Options;
use dstm_workload::Workload;

/// What a run plays: a workload, by these options. In round 0 each worker passes the gate.
#[derive(Drop)]
pub struct Play<'a, G> {
    pub workload: &'a Workload,
    pub options: &'a Options,
    pub gate: &'a G,
}
