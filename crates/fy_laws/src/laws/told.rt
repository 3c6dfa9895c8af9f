//! What clients are told of a record.
ghost use Rattle.std.specs.Prelude.{true, false, [], ◌∷◌, ◌++◌};
ghost use Rattle.fy_acts.specs.declared.reply.Reply.TheVariants.{Stored, Marked};
ghost use Rattle.fy_cluster.specs.History.{history};
ghost use Rattle.fy_cluster.specs.Replies.{Legal};
ghost use Rattle.fy_cluster.specs.Survival.{IsTold};
ghost use Rattle.fy_laws.specs.Clusters.{six};
ghost use Rattle.fy_laws.specs.Told.{first_synced, first_ack, both_synced, last_ack};

/// Nobody is told that a record is acknowledged before each member's acknowledgement has come.
pub fn told_too_soon()
    ensures told { IsTold six (history six first_synced) (first_ack (Marked false)) }
    ensures wrong { IsTold six (history six first_synced) (first_ack (Marked true)) → ⊥ }
{
    told_at_last();
    fy_cluster::laws::clients_told();
}

/// Once the last has come, its client is told so, and by no other reply.
pub fn told_at_last()
    ensures legal { Legal six (both_synced ++ last_ack (Marked true) ∷ []) }
    ensures told { IsTold six (history six both_synced) (last_ack (Marked true)) }
    ensures denied { IsTold six (history six both_synced) (last_ack (Marked false)) → ⊥ }
    ensures untold { IsTold six (history six both_synced) (last_ack Stored) → ⊥ }
{
    fy_cluster::laws::clients_told();
}
