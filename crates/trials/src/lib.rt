// What document 01 wants proved beside its demands: its trial drawings, the idle programs that must not pass, and the mistakes near at hand. No code.
#![tactic(auto)]
