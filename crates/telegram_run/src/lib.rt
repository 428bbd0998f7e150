// Telegrams of successive minutes, heard by a DCF77 pulse reader: every named minute is told, in order; there is no code here.
#![tactic(auto)]
